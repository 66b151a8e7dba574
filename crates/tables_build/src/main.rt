#![tactic(auto)]

// Builds the tables of a timetable and writes them to a file, and says what was written, or why nothing was. What is said of the build is fixed in
// the crate `desk`.
use kinds::Text;

// Whether a file's name is that of the timetable, letter by letter: the tables would take its place.
fn is_timetable(rt: &HostRuntime, path: &[u8]) -> bool {
    let mut text = files::name_room();
    let n = files::arg(rt, 1, &mut text);
    path == &text[..n]
}

// The tables, as the file that the second word names.
fn save(rt: &HostRuntime, tables: &[u8]) -> bool {
    let mut path = files::name_room();
    let n = files::arg(rt, 2, &mut path);
    if is_timetable(rt, &path[..n]) {
        let _ = rt.write_all(b"cannot make the tables: their name is the timetable's\n");
        return false;
    }
    files::write(rt, &path[..n], tables)
}

// Only tables that were written are told of.
fn main(rt: HostRuntime) {
    if !files::has_words(
        &rt,
        files::arg_count(&rt),
        3,
        b"tables_build TIMETABLE TABLES",
    ) {
        return;
    }
    let mut text = desk::text_room();
    let Some(n) = files::read_named(&rt, 1, Text::MOST as u32, &mut text) else {
        return;
    };
    let mut tables = desk::tables_room();
    let mut out = [0u8; desk::TOLD_ROOM];
    match desk::built(&text[..n], &mut tables, &mut out) {
        Ok(made) => {
            if save(&rt, &tables[..made.tables]) {
                files::tell(&rt, &out, made.told);
            }
        }
        Err(told) => {
            files::tell(&rt, &out, told);
        }
    }
}
