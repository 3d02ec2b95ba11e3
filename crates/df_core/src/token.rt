//! Tokens.

ghost use Rattle.std.specs.Prelude.{◌≡◌};
ghost use Rattle.df_core.specs.Fit.{RightToken};
ghost use Rattle.df_core.specs.Rights.{IsRight};

use crate::job::Job;
use std::marker::{Model, PhantomData};

/// A value in flight to a port of an instance: an instruction under a wave number of the job. The
/// walk of the job's image has the instance, and this operand at its port.
#[derive(Drop)]
pub struct Token<J: Job> {
    wave: u64,
    instr: u32,
    // Less than 256, but as wide as the instruction: so a token has no gap, whose bytes would be copied one
    // by one each time that it is handed on.
    port: u32,
    value: u64,
    of: PhantomData<J>,
}

impl<J: Job> Model for Token<J> {
    ghost use Rattle.std.specs.Prelude.{◌<◌};
    ghost use Rattle.ws_isa.specs.Image.{Token as Plain};
    ghost use Rattle.df_core.specs.Fit.{RightToken};

    ghost Value = { Plain };

    ghost view = { λ t. record { wave = t.wave; instr = t.instr; port = t.port; value = t.value } };

    ghost invariant = { λ t. (t.port < 256) × RightToken J.image J.world t.wave t.instr t.port t.value };

    ghost inverse = { λ v. record {
      wave = v.wave;
      instr = v.instr;
      port = v.port;
      value = v.value;
      of = record {};
    } };
}

impl<J: Job> Token<J> {
    /// A token that is right.
    pub fn right(wave: u64, instr: u32, port: u8, value: u64) -> Token<J>
        requires { RightToken J.image J.world wave instr port value }
        ensures { result ≡ record { wave = wave; instr = instr; port = port; value = value } }
    {
        Token {
            wave,
            instr,
            port: port as u32,
            value,
            of: PhantomData,
        }
    }

    /// What is true of every token: it is right. A call brings this to a proof.
    pub fn facts(&self)
        ensures right { IsRight J.image J.world self.now }
    {
        let _ = self.wave();
    }

    /// The number of its wave.
    pub fn wave(&self) -> u64
        ensures wave { result ≡ self.now.wave }
        ensures right { IsRight J.image J.world self.now }
    {
        self.wave
    }

    /// Its instruction.
    pub fn instr(&self) -> u32
        ensures { result ≡ self.now.instr }
    {
        self.instr
    }

    /// Its port.
    pub fn port(&self) -> u8
        ensures { result ≡ self.now.port }
    {
        self.port as u8
    }

    /// Its value.
    pub fn value(&self) -> u64
        ensures { result ≡ self.now.value }
    {
        self.value
    }

    /// The same token once more.
    pub fn again(&self) -> Token<J>
        ensures { result ≡ self.now }
    {
        Token {
            wave: self.wave,
            instr: self.instr,
            port: self.port,
            value: self.value,
            of: PhantomData,
        }
    }
}
