//! Requests.

ghost use Rattle.std.specs.Prelude.{◌≡◌};
ghost use Rattle.df_core.specs.Rights.{IsAsked};

use crate::job::Job;
use std::marker::{Model, PhantomData};

/// A request of a memory operation of the job that has fired. The walk of the job's image has the
/// instance with these operands; `second` is 0 where it has one.
#[derive(Drop)]
pub struct Request<J: Job> {
    wave: u64,
    instr: u32,
    first: u64,
    second: u64,
    of: PhantomData<J>,
}

impl<J: Job> Model for Request<J> {
    ghost use Rattle.df_core.specs.Rights.{Asked, IsAsked};

    ghost Value = { Asked };

    ghost view = { λ r. record {
      wave = r.wave;
      instr = r.instr;
      first = r.first;
      second = r.second;
    } };

    ghost invariant = { λ r. IsAsked J.image J.world (record {
      wave = r.wave;
      instr = r.instr;
      first = r.first;
      second = r.second;
    }) };

    ghost inverse = { λ v. record {
      wave = v.wave;
      instr = v.instr;
      first = v.first;
      second = v.second;
      of = record {};
    } };
}

impl<J: Job> Request<J> {
    /// A request that is right.
    pub fn right(wave: u64, instr: u32, first: u64, second: u64) -> Request<J>
        requires { IsAsked J.image J.world
            (record { wave = wave; instr = instr; first = first; second = second }) }
        ensures { result
            ≡ record { wave = wave; instr = instr; first = first; second = second } }
    {
        Request {
            wave,
            instr,
            first,
            second,
            of: PhantomData,
        }
    }

    /// The number of its wave.
    pub fn wave(&self) -> u64
        ensures wave { result ≡ self.now.wave }
        ensures right { IsAsked J.image J.world self.now }
    {
        self.wave
    }

    /// Its instruction.
    pub fn instr(&self) -> u32
        ensures { result ≡ self.now.instr }
    {
        self.instr
    }

    /// The operand at port 0.
    pub fn first(&self) -> u64
        ensures { result ≡ self.now.first }
    {
        self.first
    }

    /// The operand at port 1, or 0.
    pub fn second(&self) -> u64
        ensures { result ≡ self.now.second }
    {
        self.second
    }

    /// The same request once more.
    pub fn again(&self) -> Request<J>
        ensures { result ≡ self.now }
    {
        Request {
            wave: self.wave,
            instr: self.instr,
            first: self.first,
            second: self.second,
            of: PhantomData,
        }
    }
}
