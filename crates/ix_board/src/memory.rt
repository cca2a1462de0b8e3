/// The refusal of a growth: no memory was left for it.
pub type Memory = std::alloc::AllocError;
