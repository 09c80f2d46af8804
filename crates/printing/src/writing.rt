// Writing the lines of a book into an output.
ghost use Rattle.std.specs.Prelude.{[], codes, slice_index_or};

use crate::book::Book;
use crate::output::Output;

impl<'b> Book<'b> {
    ghost use Rattle.printing.specs.Books.{names_of, links_of};
    ghost use Rattle.printing.specs.Printed.{name_lines, base_names, parted, type_line, type_lines, printed};
    ghost use Rattle.printing.specs.Putting.{Puts, EndFits};

    // Each name on a line.
    fn put_names(&self, out: &mut Output)
        requires { EndFits (name_lines (names_of self.now)) out.old }
        ensures { Puts (name_lines (names_of self.now)) out.old out.new }
    {
        // By number: an iterator over the names would need a type and laws of its own.
        for number in 0..self.names.count() {
            out.put(self.name(number));
            out.put(b"\n");
        }
    }

    // The kept bases of a type, each with what parts it from the name before.
    fn put_bases(&self, of: u16, out: &mut Output)
        requires { EndFits (parted (codes " < ") (base_names (links_of self.now) of 0 (names_of self.now))) out.old }
        ensures { Puts (parted (codes " < ") (base_names (links_of self.now) of 0 (names_of self.now))) out.old out.new }
    {
        let mut separator: &[u8] = b" < ";
        // The bases are found one by one, each from the number after the last one: there is no table to sort them into.
        let mut least = 0;
        while let Some(base) = self.next_base(of, least) {
            out.put(separator);
            out.put(self.name(base));
            separator = b", ";
            least = base + 1;
        }
    }

    // The line of a type, where it has kept bases.
    fn put_type(&self, of: u16, out: &mut Output)
        requires { EndFits (type_line (slice_index_or (names_of self.now) of []) (base_names (links_of self.now) of 0 (names_of self.now))) out.old }
        ensures { Puts (type_line (slice_index_or (names_of self.now) of []) (base_names (links_of self.now) of 0 (names_of self.now))) out.old out.new }
    {
        if self.next_base(of, 0).is_none() {
            return;
        }
        out.put(self.name(of));
        self.put_bases(of, out);
        out.put(b"\n");
    }

    // The lines of all types that have kept bases.
    fn put_types(&self, out: &mut Output)
        requires { EndFits (type_lines (links_of self.now) (names_of self.now) 0 (names_of self.now)) out.old }
        ensures { Puts (type_lines (links_of self.now) (names_of self.now) 0 (names_of self.now)) out.old out.new }
    {
        // By number: the line of a type is told by its number.
        for number in 0..self.names.count() {
            self.put_type(number, out);
        }
    }

    /// The text of the book, from the first place on.
    pub(crate) fn put(&self, out: &mut Output)
        requires { EndFits (printed (names_of self.now) (links_of self.now)) out.old }
        ensures { Puts (printed (names_of self.now) (links_of self.now)) out.old out.new }
    {
        self.put_names(out);
        self.put_types(out);
    }
}
