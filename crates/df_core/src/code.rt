//! The code of a job.

ghost use Rattle.std.specs.Prelude.{◌≡◌};
ghost use Rattle.ws_isa.specs.Formed.{Formed};
ghost use Rattle.ws_isa.specs.Sound.{Sound};
ghost use Rattle.df_core.specs.Places.{image_of};

use crate::job::Job;
use crate::program::Program;
use std::alloc::Global;
use std::marker::{Model, PhantomData};
use ws_isa::Checked;
use ws_words::NoMemory;

/// The image of a job, with its instructions by number. All calls of one run share it.
#[derive(Drop)]
pub struct Code<'i, J: Job> {
    program: Program<'i>,
    of: PhantomData<J>,
}

impl<'i, J: Job> Model for Code<'i, J> {
    ghost use Rattle.ws_isa.specs.Image.{Image};
    ghost use Rattle.df_core.specs.Places.{image_of};
    ghost use Rattle.df_core.specs.Codes.{IsCode};

    ghost Value = { Image };

    ghost view = { λ code. image_of code.program };

    ghost invariant = { λ code. IsCode J.image code.program };
}

impl<'i, J: Job> Code<'i, J> {
    /// The code of a job, of which this is the image.
    pub fn of(alloc: Global, image: &'i Checked) -> Result<Code<'i, J>, NoMemory>
        requires { image.now ≡ J.image }
    {
        Ok(Code {
            program: Program::of(alloc, image.image())?,
            of: PhantomData,
        })
    }

    /// What is true of every code: the job's image is formed and sound. A call brings this to a proof.
    pub fn facts(&self)
        ensures formed { Formed J.image }
        ensures sound { Sound J.image }
    {
        let _ = &self.program;
    }

    /// The instructions of the job's image, which is formed and sound.
    pub fn program(&self) -> &Program<'i>
        ensures image { image_of result.now ≡ J.image }
        ensures formed { Formed J.image }
        ensures sound { Sound J.image }
    {
        &self.program
    }
}
