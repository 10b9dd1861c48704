//! Names that obey a rule.

ghost use Rattle.std.specs.Prelude.{◌≡◌, ℕ, List};

use b2_base::Text;
use std::marker::{Model, PhantomData};

/// A rule of names.
pub trait NameRule {
    /// The bytes are a name by the rule.
    ghost is_name: { List ℕ → Type 0 };
}

/// A name by the rule: whoever holds one knows that it obeys it.
#[derive(Debug, Drop)]
pub struct Name<R: NameRule> {
    name: Text,
    of: PhantomData<R>,
}

impl<R: NameRule> Model for Name<R> {
    ghost use Rattle.std.specs.Prelude.{ℕ, List};
    ghost use Rattle.std.specs.Coded.{coded_list, coded_ℕ};

    ghost Value = { List ℕ };

    ghost coded = { coded_list coded_ℕ };

    ghost view = { λ n. n.name };

    ghost invariant = { λ n. R.is_name n.name };
}

impl<R: NameRule> Name<R> {
    /// The name that the text is.
    pub fn of(name: Text) -> Name<R>
        requires { R.is_name name }
        ensures { result ≡ name }
    {
        Name {
            name,
            of: PhantomData,
        }
    }

    /// The name's text.
    pub fn get(&self) -> &str
        ensures { (result.now ≡ self.now) × R.is_name self.now }
    {
        self.name.get()
    }
}
