//! What is true of ports that are handed in.

ghost use Rattle.std.specs.Prelude.{ℕ, List, Option};
ghost use Rattle.port_set.specs.Ports.{Told};
ghost use Rattle.store_buf.specs.Outdoors.{AllBegan, AllTell, RoseAt, RoseSince, began_of, lefts_of};

/// Ports that report the words that they have left are as a run finds them that is given these words
/// and begins with these ports. Since then a count of faults rose where it rose since they were
/// handed in.
pub fn told_ports_begin()
    ensures begin { (ports : List (Option Told)) → AllTell ports →
        AllBegan (began_of ports) (lefts_of ports) ports }
    ensures rose { (handed back : List (Option Told)) (port : ℕ) →
        RoseSince (began_of handed) port back → RoseAt port handed back }
{}
