//! The jobs of four threads, and the quotas of their tables in a phase. They have no content when they run.

use crate::each::{First, Fourth, Second, Third};
use df_core::Job;
use match_table::Quotas;
use std::marker::Brand;

/// A job that is one of several threads: its part, if it has one.
pub trait LaneJob: Job {
    ghost use Rattle.std.specs.Prelude.{Option};
    ghost use Rattle.multi_wave.specs.Parts.{Alone, JobNamesPart};

    ghost part: { Option Alone };

    ghost named: { JobNamesPart Self.Job.image Self.Job.world Self.Job.began part };
}

/// The parts of four threads, from each of which its job follows.
pub trait FourParts {
    ghost use Rattle.std.specs.Prelude.{Option};
    ghost use Rattle.multi_wave.specs.Fours.{Fourfold};
    ghost use Rattle.multi_wave.specs.Parts.{Alone};

    ghost parts: { Fourfold (Option Alone) };
}

impl FourParts for Brand {
    ghost use Rattle.std.specs.Prelude.{None};

    ghost parts = { record { first = None; second = None; third = None; fourth = None } };
}

/// What four threads bring into a phase, from which the quotas of their tables follow.
pub trait FourHomes {
    ghost use Rattle.multi_wave.specs.Fours.{Fourfold};
    ghost use Rattle.multi_wave.specs.Stands.{Housed};

    ghost homes: { Fourfold Housed };
}

impl FourHomes for Brand {
    ghost use Rattle.multi_wave.specs.Stands.{no_home};

    ghost homes = { record { first = no_home; second = no_home; third = no_home; fourth = no_home } };
}

impl<M: FourParts> Job for First<M> {
    ghost use Rattle.multi_wave.specs.Parts.{began_in, image_in, world_in};

    ghost image = { image_in M.parts.first };

    ghost world = { world_in M.parts.first };

    ghost began = { began_in M.parts.first };
}

impl<M: FourParts> LaneJob for First<M> {
    ghost use Rattle.multi_wave.specs.Parts.{is_job};

    ghost part = { M.parts.first };

    ghost named = { is_job M.parts.first };
}

impl<Q: FourHomes> Quotas for First<Q> {
    ghost most = { Q.homes.first.limits };

    ghost began = { Q.homes.first.tables };
}

impl<M: FourParts> Job for Second<M> {
    ghost use Rattle.multi_wave.specs.Parts.{began_in, image_in, world_in};

    ghost image = { image_in M.parts.second };

    ghost world = { world_in M.parts.second };

    ghost began = { began_in M.parts.second };
}

impl<M: FourParts> LaneJob for Second<M> {
    ghost use Rattle.multi_wave.specs.Parts.{is_job};

    ghost part = { M.parts.second };

    ghost named = { is_job M.parts.second };
}

impl<Q: FourHomes> Quotas for Second<Q> {
    ghost most = { Q.homes.second.limits };

    ghost began = { Q.homes.second.tables };
}

impl<M: FourParts> Job for Third<M> {
    ghost use Rattle.multi_wave.specs.Parts.{began_in, image_in, world_in};

    ghost image = { image_in M.parts.third };

    ghost world = { world_in M.parts.third };

    ghost began = { began_in M.parts.third };
}

impl<M: FourParts> LaneJob for Third<M> {
    ghost use Rattle.multi_wave.specs.Parts.{is_job};

    ghost part = { M.parts.third };

    ghost named = { is_job M.parts.third };
}

impl<Q: FourHomes> Quotas for Third<Q> {
    ghost most = { Q.homes.third.limits };

    ghost began = { Q.homes.third.tables };
}

impl<M: FourParts> Job for Fourth<M> {
    ghost use Rattle.multi_wave.specs.Parts.{began_in, image_in, world_in};

    ghost image = { image_in M.parts.fourth };

    ghost world = { world_in M.parts.fourth };

    ghost began = { began_in M.parts.fourth };
}

impl<M: FourParts> LaneJob for Fourth<M> {
    ghost use Rattle.multi_wave.specs.Parts.{is_job};

    ghost part = { M.parts.fourth };

    ghost named = { is_job M.parts.fourth };
}

impl<Q: FourHomes> Quotas for Fourth<Q> {
    ghost most = { Q.homes.fourth.limits };

    ghost began = { Q.homes.fourth.tables };
}
