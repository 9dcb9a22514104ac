//! Laws of upstreams. These functions do nothing: their contracts are the laws.
ghost use Rattle.upstreams.specs.Upstreams.{CountsReceived, EachHolds, ExpiresExactly};

use crate::upstream::Upstream;
use rtr_server::Stream;
use rtr_server::laws::counts_splits;

/// Law, for any calls, whatever the cache sends and in whatever pieces it arrives. The bytes read on the latest connection are those that the router
/// consumed, followed by those not consumed yet. The router's transcript lists the PDUs of the consumed bytes in their order.
/// The table is the result of these PDUs. The bytes written are a beginning of the router's queries, followed by its Error Report if it sent one.
pub fn each_holds<T: Stream + Drop>(upstream: &Upstream<T>)
    ensures { EachHolds T.remaining T.contents upstream.now }
{}

/// Law: suppose that a connection is open and its bytes have shown no [`UnitFault`](rtr_pdu::UnitFault). Then `received` counts, by type, the PDUs in
/// the router's transcript since the connection was opened. Each count is at most `u64::MAX`. If a fault has shown, the law says nothing.
pub fn counts_received<T: Stream + Drop>(upstream: &Upstream<T>)
    ensures { CountsReceived T.remaining T.contents upstream.now }
{
    counts_splits();
}

/// Law: data is over (RFC 8210 section 6) if and only if the second of [`Upstream::expires_at`] has come.
pub fn expires_exactly()
    ensures { ExpiresExactly }
{}
