// The tables over which types and links are settled.

/// What every entry of a table is that settling has left unwritten: the tables are the host's, of 16-bit numbers.
pub const UNWRITTEN: u16 = 65535;

/// The tables that settling writes, and its working memory. They are the host's and have the host's lengths, so how many
/// types and links there are comes beside them.
#[derive(Drop)]
pub struct Tables<'t> {
    pub order: &'t mut [u16],
    pub chain: &'t mut [u16],
    pub position: &'t mut [u16],
    pub kept: &'t mut [u16],
    pub index: &'t mut [u16],
    pub loop_table: &'t mut [u16],
    pub scratch: &'t mut [u16],
}
