//! Why a template isn't filled.
use base_refusals::TemplateRefusal;
use std::alloc::AllocError;

/// Why there is no text.
#[derive(Clone, Copy, Debug, PartialEq, Eq)]
pub enum TemplateFault {
    /// The number or the values are refused.
    Refused(TemplateRefusal),
    /// Out of memory.
    OutOfMemory,
}

impl From<AllocError> for TemplateFault {
    fn from(_: AllocError) -> TemplateFault {
        TemplateFault::OutOfMemory
    }
}
