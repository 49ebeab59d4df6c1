//! Laws of octets and the items that they represent.

ghost use Rattle.std.specs.Prelude.{◌≡◌, ◌++◌, [], ℕ, List};
ghost use Rattle.ftp_wire.specs.declared.commands.Command.{Command};
ghost use Rattle.ftp_wire.specs.Items.{Item};
ghost use Rattle.ftp_wire.specs.Reading.{IsSpelling, ReadsAs};

/// Octets represent one list of items.
pub fn only_items()
    ensures only { (octets : List ℕ) (items others : List Item)
        → ReadsAs octets items → ReadsAs octets others → others ≡ items }
{}

/// More octets never change the items of the octets before them.
pub fn items_stay()
    ensures stay { (octets more : List ℕ) (items others : List Item)
        → ReadsAs octets items → ReadsAs (octets ++ more) others
        → (later : List Item) × (others ≡ items ++ later) }
{}

/// No spelling of a command is a proper prefix of a spelling of another.
pub fn spellings_apart()
    ensures apart { (first second more : List ℕ) (c d : Command (List ℕ))
        → IsSpelling first c → IsSpelling second d
        → second ≡ first ++ more → more ≡ [] }
{}
