//! What is written down of a run: windows, layouts, versions of objects, records of tasks, calls and images.
#![tactic(auto)]

mod call;
mod image;
mod layout;
mod task_record;
mod version;
mod window;

pub use call::Call;
pub use image::{ImageHead, ImageKind};
pub use layout::Layout;
pub use task_record::TaskRecord;
pub use version::VersionName;
pub use window::Window;
