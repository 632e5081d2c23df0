//! Each call that a host links; those that read a row stand in `reading`.

pub mod building;
pub mod editions;
pub mod painting;
