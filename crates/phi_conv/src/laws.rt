//! A law over the definition of the joined graph.

ghost use Rattle.std.specs.Prelude.{◌≡◌};
ghost use Rattle.phi_conv.specs.Joined.{joined};
ghost use Rattle.phi_conv.specs.Samples.{chooses, chooses_live, chooses_joined};

/// The joined graph of the sample.
pub fn sample_is_joined()
    ensures { joined chooses chooses_live ≡ chooses_joined }
{}
