use program::layout::Words;

// One of the eleven calls with its arguments.
#[derive(Clone, Copy)]
pub enum Call<'a> {
    Reserve,
    Release(u32),
    Put(u32, u32, u32),
    Fill(u32, &'a [u8]),
    Start(u32, Words),
    Stop(u32),
    Quiet,
    Wake,
    Look(u32, u32),
    Status(u32),
    Turn,
}
