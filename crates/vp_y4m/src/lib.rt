//! Reading and writing YUV4MPEG2 files.
#![tactic(auto)]

mod fault;
mod frame;
mod header;
mod laws;
mod line;
mod pixels;
mod source;
mod writing;

pub use fault::SourceFault;
pub use header::SourceHead;
pub use laws::written_is_read;
pub use source::{Progress, Source};
pub use writing::{PictureFault, write_header, write_picture};
