// What the order means, as theorems.
ghost use Rattle.order.specs.Meaning.{RanksRise, UnrankedWhereLoop, EachTypeOnce};
ghost use Rattle.order.specs.Worked.{OrdersWorked, RanksWorked, SelfLoop};

/// Where a type is ranked, each type linked to it has a lower rank; where all are ranked, ranks rise along each link.
pub fn ranks_rise_along_each_link()
    ensures { RanksRise }
{}

/// Where types are left unranked there is a loop; where there is a loop, types are left unranked; and where none is, no path
/// leads back.
pub fn types_are_left_unranked_exactly_where_there_is_a_loop()
    ensures { UnrankedWhereLoop }
{}

/// Where as many types are ranked as there are, each stands at exactly one place of the order, and nothing else does.
pub fn a_whole_order_ranks_each_type_once()
    ensures { EachTypeOnce }
{}

/// The worked examples have the orders and the ranks that they state.
pub fn the_worked_examples_have_their_orders_and_ranks()
    ensures orders { OrdersWorked }
    ensures ranks { RanksWorked }
{}

/// A link from a type to itself is a loop of one type.
pub fn a_link_from_a_type_to_itself_is_a_loop()
    ensures { SelfLoop }
{}
