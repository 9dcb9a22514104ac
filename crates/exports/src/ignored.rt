//! What an export has besides payloads of ROAs: ASPAs and router keys. They are not served, and counted.
ghost use Rattle.std.specs.Prelude.{◌≡◌, ◌+◌, IfSome};
ghost use Rattle.serde_json.specs.Data.{Data, Members, object, put};
ghost use Rattle.exports.specs.Ignored.{element_count};
ghost use Rattle.exports.specs.PlainForm.{HasElements};

/// The number of elements of an export that are not served.
#[derive(Clone, Copy, Debug, Drop, PartialEq, Eq)]
pub struct Ignored {
    /// The number of elements of the array `aspas`. Each has a customer AS and its providers.
    pub aspas: u64,
    /// The number of elements of the arrays `bgpsec_keys` (rpki-client, StayRTR) and `routerKeys` (Routinator): router keys for BGPsec (RFC
    /// 8635).
    pub router_keys: u64,
}

/// How many elements each array has that is not served. A member that is not an array has none.
#[derive(Clone, Copy, Debug, Drop)]
pub struct Elements {
    pub(crate) aspas: u64,
    pub(crate) bgpsec_keys: u64,
    pub(crate) router_keys: u64,
}

impl Elements {
    /// No elements.
    pub(crate) const NONE: Elements = Elements {
        aspas: 0,
        bgpsec_keys: 0,
        router_keys: 0,
    };

    /// The same with one member more, which has this many elements. It replaces an earlier member of its name.
    pub(crate) fn with(self, name: &str, count: u64) -> Elements
        ensures { (ms : Members) (d : Data) → HasElements (object ms) self → count ≡ element_count d → HasElements (object (put name.now d ms)) result }
    {
        match name {
            "aspas" => Elements {
                aspas: count,
                ..self
            },
            "bgpsec_keys" => Elements {
                bgpsec_keys: count,
                ..self
            },
            "routerKeys" => Elements {
                router_keys: count,
                ..self
            },
            _ => self,
        }
    }

    /// How many ASPAs and how many router keys these are. `None`: there are 2^64 router keys, which no memory holds.
    pub(crate) fn ignored(self) -> Option<Ignored>
        ensures aspas { IfSome result (λ i. i.aspas ≡ self.aspas) }
        ensures router_keys { IfSome result (λ i. i.router_keys ≡ self.bgpsec_keys + self.router_keys) }
    {
        if self.router_keys > u64::MAX - self.bgpsec_keys {
            return None;
        }
        Some(Ignored {
            aspas: self.aspas,
            router_keys: self.bgpsec_keys + self.router_keys,
        })
    }
}
