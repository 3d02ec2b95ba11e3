//! A job: a type that stands for one run.

use std::marker::Brand;

/// One run: its image and its world, and of each port slot, when the run began, whether it held a
/// port, what that had taken, if it reported that, and how often it had failed. A job has no content
/// when it runs.
pub trait Job {
    ghost use Rattle.std.specs.Prelude.{List, Option};
    ghost use Rattle.ws_words.specs.Outside.{World};
    ghost use Rattle.ws_isa.specs.Image.{Image};
    ghost use Rattle.df_core.specs.Began.{Began};

    ghost image: { Image };

    ghost world: { World };

    ghost began: { List (Option Began) };
}

impl Job for Brand {
    ghost use Rattle.std.specs.Prelude.{[]};

    ghost image = { record { arrays = []; blocks = [] } };

    ghost world = { record { input = []; left = [] } };

    ghost began = { [] };
}
