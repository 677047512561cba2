// The policy under which the script runs.
ghost use Rattle.std.specs.Prelude.{◌≡◌};
ghost use Rattle.gen_script.specs.Policy.{gen_policy};

/// The policy under which a script of `make_script` runs: ARP is flooded, blocked sources are dropped,
/// and packets for a known host are sent along a shortest way to it.
#[tactic(auto, unfolding(crate::specs::Policy::gen_policy))]
pub fn policy_text() -> &'static [u8]
    ensures text { result.now ≡ gen_policy }
{
    b"table blocked; policy { if pkt.dl_type is 0x0806 { flood; } if blocked[pkt.nw_src] as b { drop; } if host(pkt.dl_dst) as h { route h; } drop; }"
}
