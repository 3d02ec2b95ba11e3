//! Whole calls with a gate that counts the tokens.

use crate::crews::{JOB, call_alone};
use crate::replies::{AskedCall, image_of};
use fire_crew::Gate;
use std::alloc::Global;
use std::sync::Wait;
use std::sync::atomic::{AtomicU64, Ordering};
use std::test::Fail;
use std::thread::Threads;
use ws_isa::Image;
use ws_words::NoMemory;

// The tokens that are counted one by one have wave numbers, instructions and ports below these.
const WAVES: u64 = 2;

const INSTRS: u32 = 64;

const PORTS: u8 = 3;

// The place of a token's count.
fn place_of(wave: u64, instr: u32, port: u8) -> Option<usize> {
    if wave < WAVES && instr < INSTRS && port < PORTS {
        Some((wave as usize * INSTRS as usize + instr as usize) * PORTS as usize + port as usize)
    } else {
        None
    }
}

// A gate that counts its calls, all together and for each token.
#[derive(Drop)]
struct Counts {
    all: AtomicU64,
    each: Vec<AtomicU64>,
}

impl Counts {
    // It wasn't called.
    fn new(alloc: Global) -> Result<Counts, NoMemory> {
        let mut each = Vec::new(alloc);
        for _ in 0..(WAVES * INSTRS as u64 * PORTS as u64) {
            each.push(AtomicU64::new(0))?;
        }
        Ok(Counts {
            all: AtomicU64::new(0),
            each,
        })
    }

    // How often it was called for this token.
    fn of(&self, wave: u64, instr: u32, port: u8) -> u64 {
        match place_of(wave, instr, port) {
            Some(place) => match self.each.get(place) {
                Some(count) => count.load(Ordering::SeqCst),
                None => 0,
            },
            None => 0,
        }
    }

    // How often it was called.
    fn all(&self) -> u64 {
        self.all.load(Ordering::SeqCst)
    }
}

impl Gate for Counts {
    fn before(&self, wave: u64, instr: u32, port: u8) {
        self.all.fetch_add(1, Ordering::SeqCst);
        if let Some(place) = place_of(wave, instr, port) {
            if let Some(count) = self.each.get(place) {
                count.fetch_add(1, Ordering::SeqCst);
            }
        }
    }
}

// Reads a word, stores 5 into cell 0 if it isn't 0, and prints both cells.
const STORES: &str = "wavescalar 1\narray a 2\nwave 1\nblock 1\npad 0 1.0\n\
    1: advance -> 2.0 3.0\n2: in <., 1, ?>.1 -> 3.1\n\
    3: steer -> 4.0 5.0 8.0 | 7.0 8.0\nif 2 2 3\n\
    block 2\n4: const 0 -> 6.0\n5: const 5 -> 6.1\n6: store 1 <1, 2, 4>.2\ngo 4\n\
    block 3\n7: nop <1, 3, 4>.1\ngo 4\n\
    block 4\n8: merge -> 9.0 10.0 15.0\n9: const 0 -> 11.0\n10: const 1 -> 12.0\n\
    11: load 1 <?, 4, 5>.2 -> 13.0\n12: load 1 <4, 5, 6>.2 -> 14.0\n\
    13: out <5, 6, 7>.6\n14: out <6, 7, 8>.7\n15: halt <7, 8, .>.8\nstop\nend\n\
    %input\n1\n";

// The wave number, instruction and port of each token of its run on the word 1.
const TOKENS: &[(u64, u32, u8)] = &[
    (0, 1, 0),
    (1, 2, 0),
    (1, 3, 0),
    (1, 3, 1),
    (1, 8, 0),
    (1, 10, 0),
    (1, 12, 0),
    (1, 4, 0),
    (1, 5, 0),
    (1, 6, 0),
    (1, 6, 1),
    (1, 9, 0),
    (1, 11, 0),
    (1, 13, 0),
    (1, 14, 0),
    (1, 15, 0),
];

// Whether each token of that run came once to a gate, and nothing else.
fn had_each_once(gate: &Counts) -> bool {
    for (wave, instr, port) in TOKENS {
        if gate.of(*wave, *instr, *port) != 1 {
            return false;
        }
    }
    gate.all() == 16
}

// Lines, and whether each token of that run comes once to a gate; else none does.
const GATED: &[(&str, bool)] = &[
    ("exec --workers 1", true),
    ("exec --workers 2", true),
    ("exec --workers 8", true),
    ("decouple", false),
];

// Whether it is so with this line.
fn comes_so<R: Threads + Wait + Sync>(
    rt: &R,
    alloc: Global,
    line: &str,
    once: bool,
) -> Result<bool, NoMemory> {
    let gate = Counts::new(alloc)?;
    let reply = call_alone(rt, alloc, line, STORES, "5\n0\nhalt\n", &gate)?;
    let came = if once {
        had_each_once(&gate)
    } else {
        gate.all() == 0
    };
    Ok(reply.said && came)
}

// With decoupled stores no worker brings a token.
#[test]
fn each_token_comes_once_to_the_gate_or_none(rt: HostRuntime) -> Result<(), Fail> {
    let alloc = rt.alloc();
    for (line, once) in GATED {
        assert!(rt; comes_so(&rt, alloc, line, *once)?, "{line}");
    }
    Ok(())
}

// How many ports each instruction of an image has.
fn ports_of(alloc: Global, image: &Image) -> Result<Vec<u8>, NoMemory> {
    let mut ports = Vec::new(alloc);
    for block in &image.blocks {
        for instr in &block.instrs {
            ports.push(instr.op.ports())?;
        }
    }
    Ok(ports)
}

// How many ports of an instruction a gate was called for once, in whatever wave.
fn once(gate: &Counts, instr: u32, ports: u8) -> u64 {
    let mut count = 0u64;
    for port in 0..ports {
        if gate
            .of(0, instr, port)
            .wrapping_add(gate.of(1, instr, port))
            == 1
        {
            count = count.wrapping_add(1);
        }
    }
    count
}

// How many tokens a gate was called for, where it was once for each of these ports of instructions in
// their order, and for nothing else.
fn tokens_of(gate: &Counts, ports: &[u8]) -> Option<u64> {
    let (mut instr, mut all) = (0u32, 0u64);
    for ports in ports {
        instr = instr.wrapping_add(1);
        all = all.wrapping_add(*ports as u64);
        if once(gate, instr, *ports) != *ports as u64 {
            return None;
        }
    }
    if gate.all() == all { Some(all) } else { None }
}

// How many ports each instruction of the image of that job has, where this gate was called in its run.
fn ports_of_run<R: Threads + Wait + Sync>(
    rt: &R,
    alloc: Global,
    gate: &Counts,
) -> Result<Vec<u8>, NoMemory> {
    let asked = AskedCall {
        line: "run",
        text: JOB.as_bytes(),
        wanted: "",
    };
    match image_of(rt, alloc, asked, gate)? {
        Some(image) => ports_of(alloc, image.image()),
        None => Ok(Vec::new(alloc)),
    }
}

// How many tokens come in a run of that job, where each port of its image has one.
fn tokens_of_run<R: Threads + Wait + Sync>(rt: &R, alloc: Global) -> Result<Option<u64>, NoMemory> {
    let gate = Counts::new(alloc)?;
    let ports = ports_of_run(rt, alloc, &gate)?;
    Ok(tokens_of(&gate, &ports))
}

#[test]
fn each_port_of_a_compiled_program_has_one_token(rt: HostRuntime) -> Result<(), Fail> {
    let alloc = rt.alloc();
    assert!(rt; tokens_of_run(&rt, alloc)?.unwrap_or(0) > 0);
    Ok(())
}
