//! The kernels on numbers worked by hand, and beside the plain ones.
mod inner;
mod outer;
mod plain;
