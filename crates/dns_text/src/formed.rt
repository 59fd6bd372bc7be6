//! A test of data: does it have the form of a type?

ghost use Rattle.std.specs.Prelude.{◌≡◌, ◌↔◌, IsTrue};
ghost use Rattle.dns_text.specs.Data.{form_in, IsSized, HasForm};

use crate::kind::{Form, form_of};
use crate::number::MOST_16;
use crate::record::Data;

impl Data {
    /// The form of the data.
    fn form(&self) -> Form
        ensures { result ≡ form_in self.now }
    {
        match self {
            Data::A(_) => Form::A,
            Data::Aaaa(_) => Form::Aaaa,
            Data::One(_) => Form::Name,
            Data::Mx { .. } => Form::Mx,
            Data::Soa { .. } => Form::Soa,
            Data::Txt(_) => Form::Txt,
            Data::Srv { .. } => Form::Srv,
            Data::Opaque(_) => Form::Opaque,
        }
    }

    /// Whether the numbers of strings and octets are in range.
    fn is_sized(&self) -> bool
        ensures { IsTrue result ↔ IsSized self.now }
    {
        match self {
            // True of every array.
            Data::A(octets) => octets.as_slice().len() == 4,
            Data::Aaaa(octets) => octets.as_slice().len() == 16,
            Data::Txt(strings) => !strings.octets().is_empty(),
            Data::Opaque(octets) => octets.as_slice().len() as u64 <= MOST_16,
            _ => true,
        }
    }

    /// Whether the data has the form of a type, so that it can be written into a message. The variant must be that of the
    /// form, and the numbers of strings and octets must be in range.
    pub fn has_form(&self, kind: u16) -> bool
        ensures { IsTrue result ↔ HasForm kind self.now }
    {
        form_of(kind) == self.form() && self.is_sized()
    }
}
