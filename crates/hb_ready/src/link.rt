//! What is known of a link that lives.

/// A link that lives. A way sleeps where its last call moved nothing and no wait named the link since.
#[derive(Clone, Copy)]
pub struct Link {
    /// It was dialled; else it was accepted at a door.
    pub is_dialled: bool,
    /// It was accepted, or a finish told that it is open.
    pub is_open: bool,
    pub finish_sleeps: bool,
    pub read_sleeps: bool,
    pub write_sleeps: bool,
    /// Its peer sends no more.
    pub has_ended: bool,
    /// The last look found it fine, or a read its end, and no wait named it since.
    pub look_sleeps: bool,
}

/// A link, and whether its number stands on the list.
#[derive(Clone, Copy)]
pub(crate) struct Place {
    pub link: Link,
    pub is_listed: bool,
}
