//! How much of a text went out.

/// How much went out of what goes out where there is room for all, if it is a beginning of it: all, or what
/// there is that room for.
pub fn extent(found: &[u8], whole: &[u8], room: usize) -> Option<&'static str> {
    if found == whole {
        Some("all")
    } else if found == &whole[..room.min(whole.len())] {
        Some("what there is room for")
    } else {
        None
    }
}
