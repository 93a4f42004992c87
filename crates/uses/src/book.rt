// A text and the tables of its declarations, of which a book can be read: what a name is looked up in.
ghost use Rattle.uses.specs.Lent.{Booked};

#[derive(Clone, Copy)]
pub(crate) struct Book<'a> {
    pub(crate) text: &'a [u8],
    pub(crate) tables: &'a [usize],
    pub(crate) ghost booked: { Booked tables.now },
}
