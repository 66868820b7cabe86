//! Names of files.
ghost use Rattle.std.specs.Prelude.{◌≡◌, ◌++◌, ◌∷◌, [], IfOk, MatchOption, Bool, false};
ghost use Rattle.std.specs.String.{string_bytes};
ghost use Rattle.aj_outside.specs.Files.{is_under, byte_order};

use std::alloc::{AllocError, Global};
use std::cmp::Ordering;
use std::fmt;
use std::marker::Model;

/// The name of a file: a UTF-8 text, which contracts see as the list of its bytes.
///
/// Names are equal where their bytes are, and are ordered by their bytes.
#[derive(Drop)]
pub struct Name {
    text: String,
}

impl Model for Name {
    ghost use Rattle.std.specs.Prelude.{ℕ, List};
    ghost use Rattle.std.specs.String.{string_bytes};

    ghost Value = { List ℕ };

    ghost view = { λ name. string_bytes name.text };
}

impl PartialEq for Name {
    ghost use Rattle.std.specs.Str.{bytes_eq};
    ghost use Rattle.std.specs.Cmp.{partial_equiv_from_equiv};
    ghost use Rattle.std.specs.Cmp.Lexicographic.{nat_list_eq_equiv};

    ghost eq = { bytes_eq };

    ghost laws = { partial_equiv_from_equiv nat_list_eq_equiv };

    fn eq(&self, other: &Name) -> bool {
        self.text == other.text
    }
}

impl Eq for Name {
    ghost use Rattle.std.specs.Cmp.Lexicographic.{nat_list_eq_equiv};

    ghost laws = { nat_list_eq_equiv };
}

impl PartialOrd for Name {
    ghost use Rattle.std.specs.Prelude.{Some};
    ghost use Rattle.std.specs.Cmp.Lexicographic.{texts_po};
    ghost use Rattle.aj_outside.specs.Files.{byte_order};

    ghost partial_cmp = { λ x y. Some (byte_order x y) };

    ghost laws = { texts_po };

    fn partial_cmp(&self, other: &Name) -> Option<Ordering> {
        Some(self.cmp(other))
    }
}

impl Ord for Name {
    ghost use Rattle.std.specs.Prelude.{refl};
    ghost use Rattle.std.specs.Cmp.Lexicographic.{nat_list_cmp_total, texts_ties};
    ghost use Rattle.aj_outside.specs.Files.{byte_order};

    ghost cmp = { byte_order };

    ghost total = { nat_list_cmp_total };

    ghost matches_partial_cmp = { λ _ _. refl };

    ghost matches_eq = { texts_ties };

    fn cmp(&self, other: &Name) -> Ordering {
        self.text.cmp(&other.text)
    }
}

impl fmt::Display for Name {
    fn fmt<W: fmt::Write>(&self, f: &mut fmt::Formatter<W>) -> fmt::Result {
        f.write_str(self.text.as_str())
    }
}

impl fmt::Debug for Name {
    fn fmt<W: fmt::Write>(&self, f: &mut fmt::Formatter<W>) -> fmt::Result {
        fmt::Debug::fmt(self.text.as_str(), f)
    }
}

impl Name {
    /// The name with this text.
    ///
    /// # Errors
    /// Only for want of memory.
    pub fn from_str(alloc: Global, text: &str) -> Result<Name, AllocError>
        ensures text { IfOk result (λ name. name ≡ text.now) }
    {
        let text = String::from_str(alloc, text)?;
        Ok(Name { text })
    }

    /// The name with this text, without copying it.
    pub fn from_string(text: String) -> Name
        ensures text { result ≡ string_bytes text }
    {
        Name { text }
    }

    /// The name `folder/rest`.
    ///
    /// # Errors
    /// Only for want of memory.
    pub fn join(alloc: Global, folder: &str, rest: &str) -> Result<Name, AllocError>
        ensures joined { IfOk result (λ name. name ≡ folder.now ++ 47 ∷ [] ++ rest.now) }
    {
        let mut text = String::from_str(alloc, folder)?;
        text.push_str("/")?;
        text.push_str(rest)?;
        Ok(Name { text })
    }

    /// An equal name.
    ///
    /// # Errors
    /// Only for want of memory.
    pub fn copy(&self) -> Result<Name, AllocError>
        ensures equal { IfOk result (λ name. name ≡ self.now) }
    {
        let text = self.text.clone()?;
        Ok(Name { text })
    }

    /// The text.
    pub fn as_str(&self) -> &str
        ensures text { result.now ≡ self.now }
    {
        self.text.as_str()
    }

    /// The bytes of the text.
    pub fn as_bytes(&self) -> &[u8]
        ensures bytes { result.now ≡ self.now }
    {
        self.text.as_bytes()
    }

    /// The text itself, without copying it.
    pub fn into_string(self) -> String
        ensures text { string_bytes result ≡ self }
    {
        self.text
    }

    /// What follows `folder/` in a name that begins so, else `None`.
    pub fn strip_folder(&self, folder: &str) -> Option<&str>
        ensures stripped { MatchOption result (is_under folder.now self.now ≡ false) (λ rest. self.now ≡ folder.now ++ 47 ∷ [] ++ rest.now) }
    {
        strip_folder_of(self.text.as_str(), folder)
    }
}

/// What follows `folder/` in a text that begins so, else `None`.
pub(crate) fn strip_folder_of<'a>(text: &'a str, folder: &str) -> Option<&'a str>
    ensures stripped { MatchOption result (is_under folder.now text.now ≡ false) (λ rest. text.now ≡ folder.now ++ 47 ∷ [] ++ rest.now) }
{
    text.strip_prefix(folder)?.strip_prefix('/')
}
