// The kernels under plain names, for a C or Rust program that measures them. Each passes on to a kernel with the kernel's own contract.
#![tactic(auto)]

pub mod blur;
pub mod color;
pub mod composite;
pub mod convert;
pub mod convolve;
pub mod curve;
pub mod morph;
pub mod row;
