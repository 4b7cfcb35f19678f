// Document 01's example of section 7: no code, one theorem.
