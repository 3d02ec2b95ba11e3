//! A buffer with partial store queues to which no address comes.

ghost use Rattle.std.specs.Prelude.{◌≡◌, IfOk, IfErr};
ghost use Rattle.ws_isa.specs.Walk.{opening_memory};
ghost use Rattle.port_set.specs.Slots.{AllOpen, contents};
ghost use Rattle.store_buf.specs.Outdoors.{AllBegan};
ghost use Rattle.store_buf.specs.Contents.{IsBuffer, opening_content};

use crate::part::PartBuffer;
use df_core::{Code, Job, Program, every_list_of_events};
use port_set::{Port, Slots};
use std::alloc::Global;
use std::marker::Model;
use store_buf::{BufFault, BufferEnd, Kept, MemoryOrder, PlainTokens};
use ws_words::Words;

/// It is a store buffer: no address comes without its data.
#[derive(Drop)]
pub struct Quiet<J: Job, P: Port> {
    inner: PartBuffer<J, P>,
}

impl<J: Job, P: Port> Model for Quiet<J, P> {
    ghost use Rattle.ws_isa.specs.Formed.{Formed};
    ghost use Rattle.ws_isa.specs.Sound.{Sound};
    ghost use Rattle.store_buf.specs.Contents.{Content};
    ghost use Rattle.part_store.specs.Contents.{NoBare, whole_of};

    ghost Value = { Content };

    ghost view = { λ quiet. whole_of quiet.inner };

    ghost invariant = { λ quiet. NoBare quiet.inner × Formed J.image × Sound J.image };
}

impl<J: Job, P: Port> Quiet<J, P> {
    /// The opening buffer of a job, of which these are the input and the ports. If memory runs
    /// out, it hands the ports back.
    pub fn begin(
        alloc: Global,
        code: &Code<'_, J>,
        input: Words,
        ports: Slots<P>,
    ) -> Result<Quiet<J, P>, Slots<P>>
        requires input { input ≡ J.world.input }
        requires ports { AllBegan J.began J.world.left (contents P.tells ports) }
        requires open { AllOpen (contents P.tells ports) }
        ensures opening { IfOk result (λ buffer. buffer
            ≡ opening_content J.image J.world (contents P.tells ports)) }
        ensures stands { IfOk result (λ buffer. IsBuffer J.image J.world J.began buffer
            (opening_memory J.image J.world)) }
        ensures back { IfErr result (λ slots.
            contents P.tells slots ≡ contents P.tells ports) }
    {
        every_list_of_events();
        code.facts();
        match PartBuffer::begin(alloc, code, input, ports) {
            Ok(inner) => Ok(Quiet { inner }),
            Err(ports) => Err(ports),
        }
    }
}

impl<J: Job, P: Port> MemoryOrder<J, P> for Quiet<J, P> {
    ghost content = { λ quiet. quiet };

    fn allocator(&self) -> Global {
        self.inner.allocator()
    }

    fn take_in(
        &mut self,
        program: &Program<'_>,
        kept: Kept,
        told: &mut PlainTokens,
    ) -> Result<(), BufFault> {
        self.inner.facts();
        let answer = self.inner.take_whole(program, kept, told);
        self.inner.facts();
        answer
    }

    fn knows(&self, wave: u64, instr: u32) -> bool {
        self.inner.knows(wave, instr)
    }

    fn kept(&self) -> &[Kept] {
        self.inner.kept()
    }

    fn word(&self, program: &Program<'_>, wave: u64, instr: u32) -> Option<u64> {
        self.inner.facts();
        self.inner.word(program, wave, instr)
    }

    fn stop(&self) -> Option<BufFault> {
        self.inner.stop()
    }

    fn facts(&self) {
        self.inner.facts();
    }

    fn finish(self) -> BufferEnd<P> {
        self.inner.finish()
    }
}
