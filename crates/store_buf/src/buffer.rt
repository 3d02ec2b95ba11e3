//! The store buffer of a job.

ghost use Rattle.std.specs.Prelude.{◌≡◌, IfOk, IfErr};
ghost use Rattle.ws_isa.specs.Walk.{opening_memory};
ghost use Rattle.port_set.specs.Slots.{AllOpen, contents};
ghost use Rattle.store_buf.specs.Outdoors.{AllBegan};
ghost use Rattle.store_buf.specs.Contents.{IsBuffer, opening_content, gives_word};

use crate::fault::BufFault;
use crate::kept::Kept;
use crate::memory_order::MemoryOrder;
use crate::order::Order;
use crate::outer::{BufferEnd, Outer, empty_cells};
use crate::store::Store;
use crate::told::PlainTokens;
use df_core::{Code, Job, Program, every_list_of_events};
use port_set::{OpenSet, Port, Slots};
use std::alloc::Global;
use std::marker::{Model, PhantomData};
use ws_isa::Op;
use ws_words::Words;

/// The store buffer of a job. It is legal between its calls, and nothing that waits is issuable but
/// where a port hasn't answered.
#[derive(Drop)]
pub struct Buffer<J: Job, P: Port> {
    store: Store<P>,
    alloc: Global,
    of: PhantomData<J>,
}

impl<J: Job, P: Port> Model for Buffer<J, P> {
    ghost use Rattle.store_buf.specs.Contents.{Content};
    ghost use Rattle.store_buf.specs.Stores.{Standing, content_of};

    ghost Value = { Content };

    ghost view = { λ buffer. content_of buffer.store };

    ghost invariant = { λ buffer. Standing J.image J.world J.began buffer.store };
}

impl<J: Job, P: Port> Buffer<J, P> {
    /// The opening buffer of a job, of which these are the input and the ports. If memory runs
    /// out, it hands the ports back.
    pub fn begin(
        alloc: Global,
        code: &Code<'_, J>,
        input: Words,
        ports: Slots<P>,
    ) -> Result<Buffer<J, P>, Slots<P>>
        requires input { input ≡ J.world.input }
        requires ports { AllBegan J.began J.world.left (contents P.tells ports) }
        requires open { AllOpen (contents P.tells ports) }
        ensures opening { IfOk result (λ buffer. buffer
            ≡ opening_content J.image J.world (contents P.tells ports)) }
        ensures stands { IfOk result (λ buffer. IsBuffer J.image J.world J.began buffer
            (opening_memory J.image J.world)) }
        ensures back { IfErr result (λ slots.
            contents P.tells slots ≡ contents P.tells ports) }
    {
        every_list_of_events();
        let cells = match empty_cells(alloc, &code.program().image().arrays) {
            Ok(cells) => cells,
            Err(_) => return Err(ports),
        };
        let outer = Outer {
            cells,
            input,
            read: 0,
            printed: Vec::new(alloc),
            ports: OpenSet::new(ports),
        };
        Ok(Buffer {
            store: Store {
                order: Order::new(alloc),
                outer,
                fault: None,
                failed: None,
                starved: false,
            },
            alloc,
            of: PhantomData,
        })
    }
}

impl<J: Job, P: Port> MemoryOrder<J, P> for Buffer<J, P> {
    ghost content = { λ buffer. buffer };

    fn allocator(&self) -> Global {
        self.alloc
    }

    #[inline(always)]
    fn take_in(
        &mut self,
        program: &Program<'_>,
        kept: Kept,
        told: &mut PlainTokens,
    ) -> Result<(), BufFault> {
        self.store.submit(program, kept, told)
    }

    fn knows(&self, wave: u64, instr: u32) -> bool {
        self.store.order.find(wave, instr).is_some()
    }

    fn kept(&self) -> &[Kept] {
        self.store.order.kept()
    }

    fn word(&self, program: &Program<'_>, wave: u64, instr: u32) -> Option<u64> {
        if !gives_word(program.op(instr)) {
            return None;
        }
        match self.store.order.find(wave, instr) {
            Some(kept) => kept.answer,
            None => None,
        }
    }

    fn stop(&self) -> Option<BufFault> {
        if let Some(array) = self.store.fault {
            return Some(BufFault::Ended { array });
        }
        if let Some(port) = self.store.failed {
            return Some(BufFault::Stopped { port });
        }
        if self.store.starved {
            Some(BufFault::NoMemory)
        } else {
            None
        }
    }

    fn facts(&self) {
        let _ = &self.store;
    }

    fn finish(self) -> BufferEnd<P> {
        let alloc = self.alloc;
        let store = self.store;
        let outer = store.outer;
        outer.finish(alloc)
    }
}

// Whether an operation gives a word.
fn gives_word(op: Op) -> bool
    ensures { result ≡ gives_word op }
{
    match op {
        Op::Load(_) | Op::Input | Op::Give(_) => true,
        _ => false,
    }
}
