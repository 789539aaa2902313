//! Fields of the head with a few possible values.

ghost use Rattle.std.specs.Prelude.{◌≡◌};
ghost use Rattle.turn_lines.specs.Head.{families_of, algorithms_of, feature_of};

use turn_auth::feature::Feature;
use turn_auth::integrity::IntegrityAlgorithm;
use turn_types::AddressFamily;

/// `4`, `6`, or both in either order.
pub fn parse_families(text: &[u8]) -> Option<(AddressFamily, Option<AddressFamily>)>
    ensures { result ≡ families_of text.now }
{
    match text {
        b"4" => Some((AddressFamily::IPV4, None)),
        b"6" => Some((AddressFamily::IPV6, None)),
        b"4,6" => Some((AddressFamily::IPV4, Some(AddressFamily::IPV6))),
        b"6,4" => Some((AddressFamily::IPV6, Some(AddressFamily::IPV4))),
        _ => None,
    }
}

/// `sha1`, `sha256`, or both in either order.
pub fn parse_algorithms(text: &[u8]) -> Option<(IntegrityAlgorithm, Option<IntegrityAlgorithm>)>
    ensures { result ≡ algorithms_of text.now }
{
    if text == b"sha1".as_slice() {
        return Some((IntegrityAlgorithm::Sha1, None));
    }
    if text == b"sha256".as_slice() {
        return Some((IntegrityAlgorithm::Sha256, None));
    }
    if text == b"sha1,sha256".as_slice() {
        return Some((IntegrityAlgorithm::Sha1, Some(IntegrityAlgorithm::Sha256)));
    }
    if text == b"sha256,sha1".as_slice() {
        return Some((IntegrityAlgorithm::Sha256, Some(IntegrityAlgorithm::Sha1)));
    }
    None
}

/// `auto`, `required` or `disabled`.
pub fn parse_feature(text: &[u8]) -> Option<Feature>
    ensures { result ≡ feature_of text.now }
{
    if text == b"auto".as_slice() {
        return Some(Feature::Auto);
    }
    if text == b"required".as_slice() {
        return Some(Feature::Required);
    }
    if text == b"disabled".as_slice() {
        return Some(Feature::Disabled);
    }
    None
}
