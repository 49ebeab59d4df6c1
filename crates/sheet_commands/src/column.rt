//! A column of a picture.

ghost use Rattle.std.specs.Prelude.{◌≡◌, ◌≤◌};
ghost use Rattle.sheet_commands.specs.Columns.{rank, rank_within};
ghost use Rattle.sheet_commands.specs.declared.column.TheConstants.{NOBODY};

/// A full branch that holds a want back.
#[derive(Clone, Copy)]
pub struct Holder<'a> {
    /// Number of the node.
    pub node: u32,
    pub path: &'a str,
}

/// A want with what it gets, in octets.
#[derive(Clone, Copy)]
pub struct Column<'a> {
    /// The path of the want.
    pub path: &'a str,
    pub grant: u64,
    pub want: u64,
    pub floor: u64,
    /// The least limit of the branches that hold this want alone, if one has a limit.
    pub lid: Option<u64>,
    /// The deepest full branch above it, if the grant is below the want.
    pub holder: Option<Holder<'a>>,
    /// Number of its user; 0 without users.
    pub user: u32,
}

/// Rank within its user of a want that nothing holds back: above each number of a node.
pub(crate) const NOBODY: u128 = 4_294_967_296;

/// Number of ranks of a user.
pub(crate) const RANKS: u128 = 8_589_934_592;

/// The rank of a want within its user: the number of the node that holds it back.
fn rank_within(holder: Option<Holder<'_>>) -> u128
    ensures rank { result ≡ rank_within holder.entry }
    ensures low { result ≤ NOBODY }
{
    match holder {
        Some(holder) => u128::from(holder.node),
        None => NOBODY,
    }
}

/// The number by which columns are sorted: by their users, and then by the nodes that hold them back.
pub(crate) fn rank_of(column: &Column<'_>) -> u128
    ensures rank { result ≡ rank column.now }
{
    u128::from(column.user) * RANKS + rank_within(column.holder)
}
