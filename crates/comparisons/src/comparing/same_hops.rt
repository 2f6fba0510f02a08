//! Lists of hops held against each other.
use transfer_pack::Hops;

/// Whether these are the same hops, in the same order.
pub fn are_same(one: Hops<'_>, other: Hops<'_>) -> bool {
    if one.count() != other.count() {
        return false;
    }
    for place in 0..one.count() {
        if one.at(place) != other.at(place) {
            return false;
        }
    }
    true
}
