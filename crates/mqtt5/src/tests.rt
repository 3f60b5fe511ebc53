//! The public paths on worked values.

mod courses;
mod delivery;
mod frames;
mod late;
mod laws;
mod pairs;
mod sets;
mod streams;
mod twins;
mod values;
mod walk;
