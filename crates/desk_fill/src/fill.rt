//! What a file has.

use desk_base::{Items, Text};
use desk_model::LicenceText;

/// The copyright of a package.
#[derive(Drop)]
pub struct Credit {
    /// The name of the package.
    pub name: Text,
    /// Its version, or none for any.
    pub version: Option<Text>,
    /// Its copyright, perhaps of several lines.
    pub text: Text,
}

/// The texts and the credits of a file, in their order.
#[derive(Drop)]
pub struct Fill {
    /// Texts of licences, exceptions and references, each once.
    pub texts: Items<LicenceText>,
    /// Credits of packages, each once.
    pub credits: Items<Credit>,
}
