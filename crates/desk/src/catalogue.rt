//! Catalogues of duties (TOML).

pub use desk_catalogue::{CatFault, Catalogue, LicenceText};
