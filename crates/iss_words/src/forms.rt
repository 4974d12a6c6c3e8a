//! The table of commands.
ghost use Rattle.std.specs.Prelude.{◌≡◌};
ghost use Rattle.iss_words.specs.Forms.{forms, see_all};

/// A command: its name and its positionals, each of which must be there.
#[derive(Clone, Copy)]
pub struct Form {
    pub name: &'static str,
    pub words: &'static [&'static str],
}

// To add a command, add a line here and one in the definition.
// rule: Program: The words are one command with its positionals
#[rattlefmt::skip]
const FORMS: &[Form] = &[
    Form { name: "replay", words: &[] },
    Form { name: "lab", words: &["number", "events"] },
    Form { name: "replies", words: &[] },
    Form { name: "answers", words: &[] },
    Form { name: "export", words: &["core"] },
    Form { name: "audit", words: &[] },
    Form { name: "cluster", words: &["port"] },
    Form { name: "node", words: &["node", "port", "file"] },
];

/// The table of commands, in their order.
pub fn forms() -> &'static [Form]
    ensures { see_all result.now ≡ forms }
{
    FORMS
}
