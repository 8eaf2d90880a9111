// The calls that a C program makes: each is the library's, and promises what it promises.
#![tactic(auto)]

ghost use Rattle.model.specs.Promises.{Planned, Checked, Mapped};

#[unsafe(no_mangle)]
pub extern "C" fn cartfloor_plan(text: &[u8], store: &mut [u8], sheet: &mut [u8]) -> u64
    ensures { Planned text.now store.old sheet.old store.new sheet.new result }
{
    cartfloor::plan::cartfloor_plan(text, store, sheet)
}

#[unsafe(no_mangle)]
pub extern "C" fn cartfloor_check(text: &[u8], store: &mut [u8], sheet: &[u8]) -> u64
    ensures { Checked text.now store.old sheet.now store.new result }
{
    cartfloor::check::cartfloor_check(text, store, sheet)
}

#[unsafe(no_mangle)]
pub extern "C" fn cartfloor_map(map: &[u8], text: &mut [u8]) -> u64
    ensures { Mapped map.now text.old text.new result }
{
    cartfloor::map::cartfloor_map(map, text)
}
