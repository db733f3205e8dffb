// What the program is, and what proved it.

/// The program's version, and on a second line what it is proved with: the line that `rt version` prints. The script `./mucheck`
/// compares that line with the toolchain's own when it builds the program.
pub const VERSION: &str = "0.9.0\n\
proved with rattle-kit-13f logic dac8208d650f15bf";
