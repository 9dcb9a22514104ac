//! What a canonical cache representation says.

use der_lite::Moment;
use prefixes::Vrp;
use std::marker::Model;

/// The VRPs of a canonical cache representation, and the hash of their list.
#[derive(Debug, Drop)]
pub struct VrpState {
    /// The VRPs, in the order of the list.
    pub vrps: Vec<Vrp>,
    /// The SHA-256 of the list, as it is beside the list.
    pub hash: [u8; 32],
}

impl Model for VrpState {
    ghost use Rattle.ccr.specs.Ccr.{Vrps};

    ghost Value = { Vrps };

    ghost view = { λ s. (s.vrps.items, s.hash) };
}

/// A canonical cache representation. `None`: the list and its hash are left out.
#[derive(Debug, Drop)]
pub struct Ccr {
    /// When it was produced.
    pub produced_at: Moment,
    /// The SHA-256 of the list of manifests.
    pub manifests: Option<[u8; 32]>,
    /// The VRPs.
    pub vrps: Option<VrpState>,
    /// The SHA-256 of the list of ASPA payloads.
    pub aspas: Option<[u8; 32]>,
    /// The SHA-256 of the list of trust anchors.
    pub trust_anchors: Option<[u8; 32]>,
    /// The SHA-256 of the list of router keys.
    pub router_keys: Option<[u8; 32]>,
}

impl Model for Ccr {
    ghost use Rattle.ccr.specs.Ccr.{Ccr as CcrValue};

    ghost Value = { CcrValue };

    ghost view = { λ c. (c.produced_at, (c.manifests, (c.vrps, (c.aspas, (c.trust_anchors, c.router_keys))))) };
}
