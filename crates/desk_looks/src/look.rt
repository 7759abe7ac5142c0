//! What files look like.

ghost use Rattle.std.specs.Prelude.{◌≡◌};
ghost use Rattle.desk_looks.specs.Words.{look_words};

/// What a file looks like.
#[derive(Clone, Copy, Drop)]
pub enum Look {
    /// A gzip file.
    Gzip,
    /// A spreadsheet, of Excel or of an OpenDocument program.
    Spreadsheet,
    /// Another ZIP archive.
    Zip,
    /// A CycloneDX document in XML.
    CycloneDxXml,
    /// An SPDX document in RDF/XML.
    SpdxRdf,
    /// An SPDX document in XML.
    SpdxXml,
    /// An SPDX 3 document in JSON-LD.
    Spdx3,
    /// An SPDX document in YAML.
    SpdxYaml,
    /// The text of a licence.
    LicenceText,
}

impl Look {
    /// What it is, and what makes a document of it.
    pub fn words(self) -> &'static str
        ensures { result.now ≡ look_words self }
    {
        match self {
            Look::Gzip => "a gzip file: unpack it first, as with gunzip",
            Look::Spreadsheet => {
                "a spreadsheet: if it is one of SPDX, save it as .xlsx and convert it to JSON first, as with Convert of SPDX's tools-java"
            }
            Look::Zip => "a ZIP archive: unpack it first, as with unzip",
            Look::CycloneDxXml => {
                "CycloneDX in XML: convert it to JSON first, as with cyclonedx-cli convert"
            }
            Look::SpdxRdf => {
                "SPDX in RDF/XML: convert it to JSON first, as with pyspdxtools or Convert of SPDX's tools-java"
            }
            Look::SpdxXml => {
                "SPDX in XML: convert it to JSON first, as with pyspdxtools or Convert of SPDX's tools-java"
            }
            Look::Spdx3 => {
                "SPDX 3 in JSON-LD, and SPDX 2.2 and 2.3 are read: have the tool that wrote it write SPDX 2.3"
            }
            Look::SpdxYaml => {
                "SPDX in YAML: convert it to JSON first, as with pyspdxtools or Convert of SPDX's tools-java"
            }
            Look::LicenceText => {
                "the text of a licence, and no document: a text for the catalogue, or for desk texts"
            }
        }
    }
}
