//! The two protocols that use the tree: HotStuff and its chained form.
ghost use Rattle.std.specs.Prelude.{◌≡◌, ℕ, List};
ghost use Rattle.iss_sb.specs.declared.content.Content.{Content};
ghost use Rattle.hs_tree.specs.Protocols.{form_of};
ghost use Rattle.hs_tree.specs.Tree.{string_in};

/// HotStuff, or its chained form.
#[derive(Clone, Copy, Debug)]
pub enum Protocol {
    Basic,
    Chained,
}

impl Protocol {
    /// The module's number in statements and packets.
    pub fn tag(self) -> u8
        ensures { (form_of self).tag ≡ result }
    {
        match self {
            Protocol::Basic => 4,
            Protocol::Chained => 5,
        }
    }

    /// The view that a node's string shows: in HotStuff it shows none.
    pub fn shown_view(self, view: u32) -> Option<u32>
        ensures { (version : ℕ) (parent : List ℕ) (what : Content) →
            string_in version result parent what ≡ (form_of self).string version view parent what }
    {
        match self {
            Protocol::Basic => None,
            Protocol::Chained => Some(view),
        }
    }
}
