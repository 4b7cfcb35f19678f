// The level of a test that counts hits over a list (document 01, demand 3): a law, no code.
