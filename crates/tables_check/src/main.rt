#![tactic(auto)]

// Checks a tables file against a timetable, and says that it is accepted, or why not. What is said is fixed in the crate `desk`.
use kinds::Text;

fn main(rt: HostRuntime) {
    if !files::has_words(
        &rt,
        files::arg_count(&rt),
        3,
        b"tables_check TIMETABLE TABLES",
    ) {
        return;
    }
    let mut text = desk::text_room();
    let Some(n) = files::read_named(&rt, 1, Text::MOST as u32, &mut text) else {
        return;
    };
    let mut tables = desk::tables_room();
    let Some(m) = files::read_named(&rt, 2, tables::FILE_ROOM as u32, &mut tables) else {
        return;
    };
    let mut out = [0u8; desk::TOLD_ROOM];
    let told = desk::checked(&text[..n], &tables[..m], &mut out);
    files::tell(&rt, &out, told);
}
