//! Reading and normalising subtitle files. `dev/check-every-place` tests rejected files with the
//! built program.

mod devices;
mod fields;
mod files;
mod normalising;
