//! Laws of the tree of a sheet, as the contracts of bodies that are empty or call another law.

ghost use Rattle.sheet_text.specs.SheetLaw.{SheetIsOfItsLines};
ghost use Rattle.sheet_text.specs.Taken.{TreeIsOfLines};
ghost use Rattle.sheet_text.specs.TreeLaw.{MentionedIsStatedOrAbove, NodesHoldWhatIsBeneath, TreeIsOfWhatIsMentioned, TreeIsOfWhatIsStated};

/// Lines mention the root, the paths that they state, and the paths above these, each once.
pub fn mentioned_is_stated_or_above()
    ensures { MentionedIsStatedOrAbove }
{}

/// Each node of a tree over paths contains exactly the wants beneath its path, whatever the kids of its nodes are.
pub fn nodes_hold_what_is_beneath()
    ensures { NodesHoldWhatIsBeneath }
{}

/// The tree over the mentioned paths has one node for each of them and no other, a leaf for each want. Each branch has
/// the limit that is stated for it, and contains exactly the wants beneath its path.
pub fn tree_is_of_what_is_mentioned()
    ensures { TreeIsOfWhatIsMentioned }
{}

/// The same for the paths that lines state, if no want is above a stated path and none is too deep.
pub fn tree_is_of_what_is_stated()
    ensures { TreeIsOfWhatIsStated }
{}

/// Lines without a fault mention the root, the paths that they state, and the paths above these, each once. Their tree
/// has one node for each of these and no other: a leaf for each want, and otherwise a branch, which has the limit that
/// its line states and contains exactly the wants beneath its path. The only fault that it may have is that floors are
/// above the limit of a branch, at the line that states this limit.
pub fn tree_is_of_lines()
    ensures { TreeIsOfLines }
{}

/// The table of the lines of a text is that of their statements. So the tree of a sheet has one node for each path that
/// the text states and for each path above one, and the only fault of a whole tree is that floors are above a limit
/// that a line states.
pub fn sheet_is_of_its_lines()
    ensures { SheetIsOfItsLines }
{
    tree_is_of_lines();
}
