/// What a command reads from and writes to, in one hand: the shelf with its files, and out.
#[derive(Drop)]
pub struct Outside<'s, 'o, S, O> {
    pub shelf: &'s mut S,
    pub out: &'o mut O,
}
