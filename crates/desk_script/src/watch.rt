//! What watches a script.

ghost use Rattle.std.specs.Prelude.{◌≡◌, Bool};

use crate::answer::Reply;

/// Sees each line of a script, and says whether the script ends with the first line that isn't
/// carried out.
pub trait Watch {
    /// Whether the script ends with the first line that isn't done.
    ghost stops: { Self → Bool };

    /// Whether the script ends with the first line that isn't done.
    fn stops(&self) -> bool
        ensures { result ≡ stops self.now };

    /// A line came, which may be blank.
    fn came(&mut self)
        ensures { stops self.new ≡ stops self.old };

    /// The line that came isn't a request. Its bytes are given unless they are more than a request
    /// may have.
    fn no_request(&mut self, text: Option<&[u8]>)
        ensures { stops self.new ≡ stops self.old };

    /// The line that came got this reply.
    fn replied(&mut self, reply: &Reply)
        ensures { stops self.new ≡ stops self.old };
}
