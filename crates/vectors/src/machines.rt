// Two machines to freeze: the reference program's, waiting at its JSR of SYSXX, and one in the second call of a procedure, with a fresh word.
ghost use Rattle.std.specs.Prelude.{◌≡◌};
ghost use Rattle.rules.specs.Reference.{reference};
ghost use Rattle.rules.proofs.Samples.{sample_table};
ghost use Rattle.vectors.specs.Machines.{called_words, waiting_words};

// The table of the reference program.
pub fn reference_table() -> [u32; 113]
    ensures { result ≡ reference }
{
    [
        13, 0, 0, 0, 1, 0, 11, 12, 101, 1, 0, 3, 8, 4, 0, 0, 109, 6, 0, 6, 0, 0, 0, 0, 110, 6, 0,
        3, 0, 0, 0, 0, 109, 23, 0, 0, 0, 0, 0, 0, 110, 0, 0, 0, 0, 0, 0, 0, 102, 6, 0, 0, 0, 0, 0,
        0, 111, 1, 0, 1, 0, 0, 0, 0, 116, 8, 5, 0, 0, 0, 0, 0, 216, 8, 4, 0, 6, 0, 7, 0, 112, 1, 0,
        1, 0, 0, 0, 0, 113, 0, 0, 0, 0, 0, 0, 0, 115, 1, 0, 1, 0, 0, 0, 0, 102, 6, 0, 0, 0, 0, 0,
        0, 1,
    ]
}

// The table with a procedure that calls itself, and a fresh word.
pub fn sample_table() -> [u32; 75]
    ensures { result ≡ sample_table }
{
    [
        8, 0, 2, 1, 0, 0, 6, 7, 109, 6, 0, 2, 0, 0, 0, 0, 102, 6, 0, 0, 0, 0, 0, 0, 111, 1, 0, 0,
        0, 0, 0, 0, 109, 6, 0, 2, 0, 0, 0, 0, 112, 0, 0, 0, 0, 0, 0, 0, 113, 0, 0, 0, 0, 0, 0, 0,
        102, 6, 0, 6, 0, 0, 0, 0, 102, 6, 0, 7, 0, 0, 0, 0, 4, 0, 0,
    ]
}

// The words of the state that the reference program's run leaves.
pub fn waiting_words() -> [u32; 270]
    ensures { result ≡ waiting_words }
{
    let mut w = [0u32; 270];
    w[0] = 764;
    w[2] = 1024;
    w[4] = 3;
    w[8] = 3;
    w[9] = 1;
    w
}

// The words of the state in the second call of the procedure.
pub fn called_words() -> [u32; 270]
    ensures { result ≡ called_words }
{
    let mut w = [0u32; 270];
    w[0] = 1;
    w[1] = 2;
    w[2] = 3;
    w[3] = 4;
    w[4] = 5;
    w[5] = 6;
    w[6] = 7;
    w[7] = 1;
    w[8] = 3;
    w[10] = 2;
    w[12] = 3;
    w[267] = 8;
    w[268] = 1073217536;
    w[269] = 1;
    w
}
