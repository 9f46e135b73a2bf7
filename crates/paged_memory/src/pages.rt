// The rights and bytes of all pages.
use page_frames::Frames;
use page_rights::Runs;

/// The rights and bytes of all pages. Those without rights are zero.
#[derive(Drop)]
pub struct Pages {
    pub rights: Runs,
    pub bytes: Frames,
}
