//! How many octets two lists begin with in common.
ghost use Rattle.std.specs.Prelude.{◌≡◌, ◌≤◌, length};
ghost use Rattle.ioam_explain.specs.Rows.{common};

/// How many octets two slices of one length begin with in common.
#[tactic(auto, using(crate::proofs::CommonLaws::common_more, crate::proofs::CommonLaws::common_stop, crate::proofs::CommonLaws::common_le))]
pub(crate) fn common(found: &[u8], wanted: &[u8]) -> usize
    requires { length found.now ≡ length wanted.now }
    ensures value { result ≡ common found.now wanted.now }
    ensures within { result ≤ length found.now }
{
    for (index, octet) in found.iter().enumerate() {
        if *octet != wanted[index] {
            return index;
        }
    }
    found.len()
}
