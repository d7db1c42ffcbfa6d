// The desk terminal's functions for C: the tree check, the single firing, the check of two category files, the place of a label, the converter of
// category files with borrowed texts, PNML texts written and read, trees written, two nets side by side, and tables without dead formula records.
// Each out-parameter is written at every call.
#![tactic(auto)]

ghost use Rattle.std.specs.Prelude.{◌≡◌, take, drop};
ghost use Rattle.net.specs.Answer as firings;
ghost use Rattle.category.specs.Faults as categories;
ghost use Rattle.category.specs.Labels as labels;
ghost use Rattle.category_borrowed.specs.Answer as converting;
ghost use Rattle.category_borrowed.specs.Theorem as conversions;
ghost use Rattle.checker.specs.Outcomes as outcomes;
ghost use Rattle.checker.specs.Demand as demand;
ghost use Rattle.pnml_shape.specs.Theorem as theorem;
ghost use Rattle.pnml_write.specs.Answer as writing;
ghost use Rattle.pnml_read.specs.Answer as reading;
ghost use Rattle.tree_answer.specs.Answer as trees;
ghost use Rattle.tree_answer.specs.Theorem as worth;
ghost use Rattle.compact_tables.specs.Tables as tables;
ghost use Rattle.compact_tables.specs.Answer as compacting;
ghost use Rattle.compact_tables.specs.Theorem as compacts;
ghost use Rattle.join.specs.Joint as nets;
ghost use Rattle.join.specs.Answer as joining;
ghost use Rattle.join.specs.Theorem as joints;

// Checks a tree: 0 with the number of nodes, a refusal with its record, or a fault with its node. At 0 the ask's claim is true.
#[unsafe(no_mangle)]
pub extern "C" fn desk_check(
    ask: &[u8],
    net: &[u8],
    formulas: &[u8],
    tree: &[u8],
    place: &mut u64,
) -> u32
    ensures answer { let o = outcomes.check_outcome ask.now net.now formulas.now tree.now in (result ≡ o.number) × (place.new ≡ o.place) }
    ensures claim { result ≡ 0 → demand.AskClaim ask.now net.now formulas.now }
{
    let outcome = checker::verdict_numbers(checker::check(ask, net, formulas, tree));
    *place = outcome.place;
    outcome.number
}

// Fires one transition: 0 with the marking after, or the refusal with its record and marking 0; with 41 both sets, otherwise these are 0.
#[unsafe(no_mangle)]
pub extern "C" fn desk_fire(
    places: u32,
    marking: u64,
    net: &[u8],
    transition: u32,
    record: &mut u64,
    after: &mut u64,
    missing: &mut u64,
    occupied: &mut u64,
) -> u32
    ensures { let f = firings.firing places marking net.now transition in (result ≡ f.found.number) × («record».new ≡ f.found.place) × (after.new ≡ f.marking) × (missing.new ≡ f.missing) × (occupied.new ≡ f.occupied) }
{
    let fired = net::firing_numbers(net::fire(places, marking, net, transition));
    *record = fired.place;
    *after = fired.marking;
    *missing = fired.missing;
    *occupied = fired.occupied;
    fired.number
}

// Checks the two category files: 0, or 9 or 10 with the record.
#[unsafe(no_mangle)]
pub extern "C" fn desk_categories(translation: &[u8], house: &[u8], record: &mut u64) -> u32
    ensures { let f = categories.check_fault translation.now house.now in (result ≡ f.number) × («record».new ≡ f.place) }
{
    let found = category::check_numbers(category::check(translation, house));
    *record = found.place;
    found.number
}

// The place of an action's label: file 0 is the translation and 1 the house file; all zero for no label.
#[unsafe(no_mangle)]
pub extern "C" fn desk_label(
    translation: &[u8],
    house: &[u8],
    action: u16,
    file: &mut u32,
    offset: &mut u32,
    length: &mut u32,
)
    ensures place { let p = labels.place_of translation.now house.now action in (file.new ≡ p.file) × (offset.new ≡ p.offset) × (length.new ≡ p.length) }
    ensures bytes { take length.new (drop offset.new (labels.file_of file.new translation.now house.now)) ≡ labels.label_of translation.now house.now action }
{
    let place = category::place(translation, house, action);
    *file = place.file;
    *offset = place.offset;
    *length = place.length;
}

// Converts a category file with borrowed texts, valid under document 01: the converted file stands at the start of the room, whose other bytes
// stay. 0 with the number of records rewritten, or 9, 10 with the record, or 12; a refused call writes nothing. At 0 the converted file is
// faultless, and each action has in it the text that it had before.
#[unsafe(no_mangle)]
pub extern "C" fn desk_convert_categories(
    file: &[u8],
    room: &mut [u8],
    record: &mut u64,
    rewritten: &mut u64,
) -> u32
    ensures answer { let a = converting.convert_answer file.now room.old in (result ≡ a.found.number) × («record».new ≡ a.found.place) × (rewritten.new ≡ a.rewritten) × (room.new ≡ a.room) }
    ensures worth { result ≡ 0 → conversions.Converts file.now }
{
    let said = category_convert::convert_numbers(category_convert::convert(file, room));
    *record = said.place;
    *rewritten = said.rewritten;
    said.number
}

// Writes the PNML text of a net with a marking at the start of the room, whose other bytes stay: 0 with the text's length, or the refusal
// with its record; a refused call writes nothing.
#[unsafe(no_mangle)]
pub extern "C" fn desk_pnml_write(
    places: u32,
    marking: u64,
    net: &[u8],
    room: &mut [u8],
    record: &mut u64,
    length: &mut u64,
) -> u32
    ensures { let a = writing.write_answer places marking net.now room.old in (result ≡ a.number) × («record».new ≡ a.place) × (length.new ≡ a.length) × (room.new ≡ a.room) }
{
    let written = pnml_write::written_numbers(pnml_write::write(places, marking, net, room));
    *record = written.place;
    *length = written.length;
    written.number
}

// Reads a PNML text and puts its transition records at the start of the room, whose other bytes stay: 0 with places, marking and the bytes of
// the records, or the refusal with the offset; a refused call writes nothing. Where the refusal is 13, the text leaves the shape at the offset.
#[unsafe(no_mangle)]
pub extern "C" fn desk_pnml_read(
    text: &[u8],
    room: &mut [u8],
    offset: &mut u64,
    places: &mut u32,
    marking: &mut u64,
    length: &mut u64,
) -> u32
    ensures answer { let a = reading.read_answer (theorem.reading text.now) room.old in (result ≡ a.number) × (offset.new ≡ a.place) × (places.new ≡ a.places) × (marking.new ≡ a.marking) × (length.new ≡ a.length) × (room.new ≡ a.room) }
    ensures exact { theorem.Right text.now (theorem.reading text.now) }
{
    let read = pnml_read::read_numbers(pnml_read::read(text, room));
    *offset = read.place;
    *places = read.places;
    *marking = read.marking;
    *length = read.length;
    read.number
}

// Writes the tree of the side that is true of the asked formula at the start of the room, whose other bytes stay: 0 with the side, 0 holds or 1
// fails, and the number of nodes, or the refusal with its record; a refused call writes nothing. At 0 that side's claim is true, and the check
// accepts the tree for the ask with that side.
#[unsafe(no_mangle)]
pub extern "C" fn desk_write_tree(
    ask: &[u8],
    net: &[u8],
    formulas: &[u8],
    room: &mut [u8],
    record: &mut u64,
    side: &mut u32,
    nodes: &mut u64,
) -> u32
    ensures answer { let a = trees.write_answer ask.now net.now formulas.now room.old in (result ≡ a.found.number) × («record».new ≡ a.found.place) × (side.new ≡ a.side) × (nodes.new ≡ a.nodes) × (room.new ≡ a.room) }
    ensures worth { let a = trees.write_answer ask.now net.now formulas.now room.old in worth.Worth ask.now net.now formulas.now a }
{
    let told = tree_write::write_numbers(tree_write::write(ask, net, formulas, room));
    *record = told.place;
    *side = told.side;
    *nodes = told.nodes;
    told.number
}

// Sets two nets with their markings side by side and puts the joint records at the start of the room, whose other bytes stay: 0 with the joint
// places, marking and bytes of the records, or the refusal with its record, the first half's before the second's, then 15, then 12; a refused call
// writes nothing. At 0 loading finds no fault in the joint net, and each half goes on in it as if it stood alone.
#[unsafe(no_mangle)]
pub extern "C" fn desk_join(
    first_places: u32,
    first_marking: u64,
    first: &[u8],
    second_places: u32,
    second_marking: u64,
    second: &[u8],
    room: &mut [u8],
    record: &mut u64,
    places: &mut u32,
    marking: &mut u64,
    length: &mut u64,
) -> u32
    ensures answer { let a = joining.join_answer (nets.marked first_places first_marking first.now) (nets.marked second_places second_marking second.now) room.old in (result ≡ a.found.number) × («record».new ≡ a.found.place) × (places.new ≡ a.places) × (marking.new ≡ a.marking) × (length.new ≡ a.length) × (room.new ≡ a.room) }
    ensures worth { result ≡ 0 → joints.SideBySide (nets.marked first_places first_marking first.now) (nets.marked second_places second_marking second.now) }
{
    let joined = join::join_numbers(join::join(
        first_places,
        first_marking,
        first,
        second_places,
        second_marking,
        second,
        room,
    ));
    *record = joined.place;
    *places = joined.places;
    *marking = joined.marking;
    *length = joined.length;
    joined.number
}

// Writes ask, formulas and tree of an accepted tree without the formula records that the asked one does not reach, each at the start of a lent table,
// whose other bytes stay: 0 with the number of formula records left, or the check's own answer, its number with the record or the node, then 12; a
// refused call writes nothing. At 0 the new tables are accepted with as many nodes and claim the same.
#[unsafe(no_mangle)]
pub extern "C" fn desk_save_room(
    ask: &[u8],
    net: &[u8],
    formulas: &[u8],
    tree: &[u8],
    new_ask: &mut [u8],
    new_formulas: &mut [u8],
    new_tree: &mut [u8],
    place: &mut u64,
    count: &mut u64,
) -> u32
    ensures answer { let a = compacting.compact_answer ask.now net.now formulas.now tree.now (tables.tables new_ask.old new_formulas.old new_tree.old) in (result ≡ a.found.number) × (place.new ≡ a.found.place) × (count.new ≡ a.count) × (tables.tables new_ask.new new_formulas.new new_tree.new ≡ a.rooms) }
    ensures worth { result ≡ 0 → compacts.Stands ask.now net.now formulas.now tree.now (tables.compacted (tables.tables ask.now formulas.now tree.now)) }
{
    let said = compact::compact_numbers(compact::compact(
        ask,
        net,
        formulas,
        tree,
        new_ask,
        new_formulas,
        new_tree,
    ));
    *place = said.place;
    *count = said.count;
    said.number
}
